//! What the posts of a case mean. Each law is what a function that does nothing ensures, so that it is proved with the crate.

ghost use Rattle.std.specs.Prelude.{◌≡◌, ◌<◌, ℕ, true, List, Option, Some, None, Ok, IfOk};
ghost use Rattle.ags_row.specs.declared.links.Link.{Link};
ghost use Rattle.ags_domain.specs.WordSet.{lists};
ghost use Rattle.ags_domain.specs.declared.word_sets.WordSet.{WordSet};
ghost use Rattle.ags_ports.specs.declared.events.Event.TheVariants.{Step};
ghost use Rattle.ags_ports.specs.declared.events.Done.{Done};
ghost use Rattle.ags_ports.specs.Machine.{IsMachine};
ghost use Rattle.ags_ports.specs.State.{State, IsState, word_here};
ghost use Rattle.ags_ports.specs.Step.{Steps};
ghost use Rattle.ags_row.specs.Limit.{Limiting};
ghost use Rattle.ags_row.specs.Cover.{Covers};
ghost use Rattle.ags_row.specs.declared.posts.Post.{Post};
ghost use Rattle.ags_row.specs.declared.rows.Row.{Row};
ghost use Rattle.ags_safe.specs.Case.{Case, IsCode};
ghost use Rattle.ags_safe.specs.Posts.{Outcome, IsPostsOfCase};
ghost use Rattle.ags_safe.specs.PlainCase.{IsPlainOfCase, AreNotNarrowed, outcome_without_link};
ghost use Rattle.ags_safe.specs.InRow.{IsInRow, IsInCase, HasFixedWords, AreCellsInLimits};
ghost use Rattle.ags_safe.specs.OneStep.{Agrees, Follows};
ghost use Rattle.ags_safe.specs.Going.{GoWithin};
ghost use Rattle.ags_safe.specs.declared.answers.PostPair.{PostPair};

use ags_domain::Domain;
use ags_ports::Machine;

/// Where a case has posts, the step from each state of the case runs an order, and follows them.
pub fn one_step_follows_the_posts<D: Domain>()
    ensures { (c : Case D) (s : State) (report : Done) (after : State) (pair : PostPair D) → IsMachine c.machine
        → IsState c.machine s → IsInCase D.meaning c s → IsPostsOfCase D.meaning c (Ok pair)
        → Steps c.machine s Step report after → Follows D.meaning c pair report after }
{}

/// A row that covers a post holds each state that agrees with the post, where the cells are in their limits and the fixed cells are
/// the image's.
pub fn covering_row_holds_what_agrees<D: Domain>()
    ensures { (machine : Machine) (image : List (Option ℕ)) (limits : Limiting D) (target base : Row D) (post : Post D) (s : State)
        → IsState machine s → Covers D.meaning target base post limits → Agrees D.meaning limits base post s
        → HasFixedWords image s → AreCellsInLimits D.meaning limits s → IsInRow D.meaning image limits target s }
{}

/// A step that follows the posts of its case keeps the cells in their limits.
pub fn step_that_follows_keeps_cells_in_limits<D: Domain>()
    ensures { (c : Case D) (s : State) (report : Done) (after : State) (pair : PostPair D) → IsState c.machine s
        → Steps c.machine s Step report after → Follows D.meaning c pair report after
        → AreCellsInLimits D.meaning c.limits s → AreCellsInLimits D.meaning c.limits after }
{}

/// The posts of a case whose index is one of the machine's go to locations of the memory.
pub fn posts_go_to_locations<D: Domain>()
    ensures { (c : Case D) (outcome : Outcome D) → c.index < 8 → IsPostsOfCase D.meaning c outcome → IfOk outcome GoWithin }
{}

/// A case has one answer: its posts, or its stop.
pub fn case_has_one_answer<D: Domain>()
    ensures { (c : Case D) (one other : Outcome D) → IsMachine c.machine → IsPostsOfCase D.meaning c one
        → IsPostsOfCase D.meaning c other → one ≡ other }
{}

/// The code of a row has the word that each state of the row stands at, and a row has one code.
pub fn code_has_the_word_of_each_state<D: Domain>()
    ensures word { (machine : Machine) (image : List (Option ℕ)) (limits : Limiting D) (row : Row D) (set : WordSet) (s : State)
        → IsState machine s → IsInRow D.meaning image limits row s → IsCode D.meaning image limits row (Some set)
        → lists set.list (word_here s) ≡ true }
    ensures one { (image : List (Option ℕ)) (limits : Limiting D) (row : Row D) (one other : Option WordSet)
        → IsCode D.meaning image limits row one → IsCode D.meaning image limits row other → one ≡ other }
{}

/// A row without a link covers a post whatever the post's link is.
pub fn row_without_link_covers_by_the_rest<D: Domain>()
    ensures { (target base : Row D) (post : Post D) (limits : Limiting D) (link : Option Link) → target.link ≡ None
        → Covers D.meaning target base post limits → Covers D.meaning target base (record post { link = link }) limits }
{}

/// Where a row has no link, the posts of its cases are, but for their links, those of the table without links, and its stops are the
/// stops of that table; each of these is one of the case; and no post narrows a cell.
pub fn posts_without_links_are_plain<D: Domain>()
    ensures plain { (c : Case D) (outcome : Outcome D) → c.row.link ≡ None → IsPostsOfCase D.meaning c outcome
        → IsPlainOfCase D.meaning c (outcome_without_link outcome) }
    ensures each { (c : Case D) (outcome : Outcome D) → c.row.link ≡ None → IsPlainOfCase D.meaning c outcome
        → (linked : Outcome D) × IsPostsOfCase D.meaning c linked × (outcome_without_link linked ≡ outcome) }
    ensures narrowed { (c : Case D) (pair : PostPair D) → c.index < 8 → c.row.link ≡ None → IsPostsOfCase D.meaning c (Ok pair)
        → AreNotNarrowed pair }
{}
