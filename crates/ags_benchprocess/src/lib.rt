//! The bench as a process: `bench_main` over any shelf and any sink, with three devices at the machine's registers
//! (docs/BENCH.md), and from the words the name of the certificate, for what a person is told. The program above makes the real
//! files and standard output. It stands on `ags_bench`, `ags_device`, `ags_program` and `ags_word`, and on `ags_outside`, `ags_edge`
//! and `ags_plan` for shelves and sinks.

mod devices;
mod running;

pub use running::{certificate_named, run, words_again};
