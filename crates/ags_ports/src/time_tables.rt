//! Order times.

ghost use Rattle.std.specs.Prelude.{◌≡◌, ◌≤◌, ◌↔◌, IsTrue, IfSome, Some, None};
ghost use Rattle.ags_ports.specs.Time.{AreTimes, time_of, standard_times};

use ags_isa::Order;
use std::marker::Model;

/// How long each of the 27 orders takes, in microseconds: from 1 to 1000.
#[derive(Clone, Copy)]
pub struct Times {
    micros: [u32; 27],
}

impl Model for Times {
    ghost use Rattle.std.specs.Prelude.{ℕ, List};
    ghost use Rattle.ags_ports.specs.Time.{AreTimes};

    ghost Value = { List ℕ };

    ghost view = { λ times. times.micros };

    ghost invariant = { λ times. AreTimes times.micros };

    ghost inverse = { λ micros. record { micros = micros } };
}

impl Times {
    /// The times of the standard machine.
    pub fn standard() -> Times
        ensures times { result ≡ standard_times }
        ensures table { AreTimes result }
    {
        Times {
            micros: [
                10, 10, 16, 40, 10, 10, 16, 10, 10, 73, 20, 10, 40, 40, 70, 70, 70, 20, 10, 10, 10,
                16, 10, 10, 10, 10, 16,
            ],
        }
    }

    /// The table of these times, in the alphabetical order of their orders, and nothing where one is 0 or above 1000.
    pub fn of(times: &[u32; 27]) -> Option<Times>
        ensures some { AreTimes times.now → result ≡ Some times.now }
        ensures none { ¬ AreTimes times.now → result ≡ None }
        ensures table { IfSome result (λ table. AreTimes table) }
    {
        if all_in_range(times) {
            Some(Times { micros: *times })
        } else {
            None
        }
    }

    /// The times, in the alphabetical order of their orders.
    pub fn table(&self) -> &[u32; 27]
        ensures same { result.now ≡ self.now }
        ensures times { AreTimes self.now }
    {
        &self.micros
    }

    /// How long an order takes, in microseconds.
    pub fn time_of(&self, order: Order) -> u32
        ensures time { result ≡ time_of self.now order }
        ensures least { 1 ≤ result }
        ensures most { result ≤ 1000 }
    {
        self.micros[order.number()]
    }
}

/// Each time is from 1 to 1000.
fn all_in_range(times: &[u32; 27]) -> bool
    ensures { IsTrue result ↔ AreTimes times.now }
{
    times.iter().all(|time| 1 <= *time && *time <= 1000)
}
