//! What follows of the definitions alone. Each function does nothing: its contract is the law.

ghost use Rattle.std.specs.Prelude.{◌≡◌, List};
ghost use Rattle.sp_history.specs.Books.{CutBooksLead, CutBooksReplay, answers_from, run_from};
ghost use Rattle.sp_rules.specs.Books.{Entry, book_outputs, book_run};
ghost use Rattle.sp_rules.specs.Classes.{Setting};
ghost use Rattle.sp_rules.specs.State.{opening};

/// From a space to which nothing has happened, entries lead where the rules say that a book leads, and answer
/// what they say that it answers.
pub fn books_replay()
    ensures state { (g : Setting) (entries : List Entry) → run_from g opening entries ≡ book_run g entries }
    ensures outputs { (g : Setting) (entries : List Entry) → answers_from g opening entries ≡ book_outputs g entries }
{}

/// The entries that were cut and those since are one book. Where those that were cut are true from the first state
/// on, and those since from the state to which these lead, all are true from the first state on, and what waits is
/// an end of all that they answer; and they lead to the state to which those since lead.
pub fn cut_books_replay()
    ensures replays { CutBooksReplay }
    ensures state { CutBooksLead }
{}
