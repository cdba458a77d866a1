//! Laws of tasks that are dealt out, as contracts of functions that do nothing.
ghost use Rattle.std.specs.Prelude.{◌≡◌, ◌==◌, ◌+◌, ◌%◌, ◌<◌, ◌≤◌, ℕ, List, [], ◌∷◌, ◌++◌, All, cond, sum_by};
ghost use Rattle.std.specs.List.{range_with_len};
ghost use Rattle.task_feed.specs.Dealt.{IsAscending, IsDealt};
ghost use Rattle.task_feed.specs.Shares.{fixed_shares, share_of};

/// Each task of a row is one of them.
pub fn law_within()
    ensures { (n : ℕ) (rows : List (List ℕ)) (left : List ℕ) → IsDealt n rows left → All (All (λ task. task < n)) rows }
{}

/// What is added up over the tasks of all rows and over what is left is what is added up over all tasks.
pub fn law_sums()
    ensures { (f : ℕ → ℕ) (n : ℕ) (rows : List (List ℕ)) (left : List ℕ) → IsDealt n rows left → sum_by (sum_by f) rows + sum_by f left ≡ sum_by f (range_with_len 0 n) }
{}

/// Fixed shares deal the tasks out.
pub fn law_fixed_shares()
    ensures { (n workers : ℕ) → 0 < workers → IsDealt n (fixed_shares n workers) [] }
{}

/// What is added up over one ascending row of tasks is at most what is added up over all tasks.
pub fn law_row_within()
    ensures { (f : ℕ → ℕ) (n : ℕ) (row : List ℕ) → IsAscending row → All (λ task. task < n) row → sum_by f row ≤ sum_by f (range_with_len 0 n) }
{}

/// With a task more, the fixed share of a worker has it behind the others where it is the worker's.
pub fn law_share_more()
    ensures { (n workers worker : ℕ) → share_of (n + 1) workers worker ≡ share_of n workers worker ++ cond (n % workers == worker) (n ∷ []) [] }
{}
