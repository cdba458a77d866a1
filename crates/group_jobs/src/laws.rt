//! Laws of tasks, as contracts of functions that do nothing.
ghost use Rattle.std.specs.Prelude.{◌≡◌, ◌+◌, ◌*◌, ◌<◌, ◌≤◌, ℕ, List, [], ◌∷◌, ◌++◌, Some, All, length, sum_by};
ghost use Rattle.std.specs.List.{slice_get};
ghost use Rattle.yak_model.specs.Texts.{counts_of, word_counts, words_of};
ghost use Rattle.task_feed.specs.Dealt.{IsAscending, IsDealt};
ghost use Rattle.group_jobs.specs.Dealings.{dealt_words, tasks_at, words_at};
ghost use Rattle.group_jobs.specs.declared.tasks.Task.{Task};
ghost use Rattle.group_jobs.specs.Tasks.{AreTasks, task_bytes};
ghost use Rattle.group_jobs.specs.Tallies.{busy_tasks, tasks_room, words_room};
ghost use Rattle.yak_model.specs.Room.{table_words};

/// A text is cut into tasks of so many lines in one way at most.
#[tactic(auto, using(crate::proofs::SameTasks::same_tasks))]
pub fn law_one_cut()
    ensures { (bytes : List ℕ) (lines : ℕ) (tasks others : List Task) → AreTasks bytes lines tasks → AreTasks bytes lines others → tasks ≡ others }
{}

/// However the tasks of a text are dealt out into rows, the words of all rows have the counts of the words of the text.
pub fn law_dealt_counts()
    ensures counts { (bytes : List ℕ) (lines : ℕ) (tasks : List Task) (rows : List (List ℕ)) → AreTasks bytes lines tasks → IsDealt (length tasks) rows [] → word_counts (dealt_words bytes tasks rows) ≡ word_counts (words_of bytes) }
    ensures list { (bytes : List ℕ) (lines : ℕ) (tasks : List Task) (rows : List (List ℕ)) → AreTasks bytes lines tasks → IsDealt (length tasks) rows [] → counts_of (dealt_words bytes tasks rows) ≡ counts_of (words_of bytes) }
{}

/// What is added up over the words of all rows is what is added up over the words of the text: so they are as many, and take as much room.
pub fn law_dealt_words()
    ensures { (g : List ℕ → ℕ) (bytes : List ℕ) (lines : ℕ) (tasks : List Task) (rows : List (List ℕ)) → AreTasks bytes lines tasks → IsDealt (length tasks) rows [] → sum_by g (dealt_words bytes tasks rows) ≡ sum_by g (words_of bytes) }
{}

/// What is added up over the tasks of all rows is what is added up over the tasks of the text.
pub fn law_dealt_tasks()
    ensures { (f : Task → ℕ) (tasks : List Task) (rows : List (List ℕ)) → IsDealt (length tasks) rows [] → sum_by (λ row. sum_by f (tasks_at tasks row)) rows ≡ sum_by f tasks }
{}

/// The tasks of all rows together take as much room as the text: a table for each task that has a word, and what the words take.
pub fn law_dealt_room()
    ensures { (bytes : List ℕ) (lines : ℕ) (tasks : List Task) (rows : List (List ℕ)) → AreTasks bytes lines tasks → IsDealt (length tasks) rows [] → sum_by (λ row. tasks_room bytes (tasks_at tasks row)) rows ≡ table_words * busy_tasks bytes tasks + words_room (words_of bytes) }
{}

/// A row with a task more has the words of this task behind those of the row.
pub fn law_row_more()
    ensures { (bytes : List ℕ) (tasks : List Task) (row : List ℕ) (i : ℕ) (task : Task) → slice_get tasks i ≡ Some task → words_at bytes tasks (row ++ i ∷ []) ≡ words_at bytes tasks row ++ words_of (task_bytes bytes task) }
{}

/// What is added up over the words of one ascending row is at most what is added up over the words of the text.
pub fn law_row_words()
    ensures { (g : List ℕ → ℕ) (bytes : List ℕ) (lines : ℕ) (tasks : List Task) (row : List ℕ) → AreTasks bytes lines tasks → IsAscending row → All (λ task. task < length tasks) row → sum_by g (words_at bytes tasks row) ≤ sum_by g (words_of bytes) }
{}
