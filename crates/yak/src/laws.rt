//! What is so of all words and numbers.
ghost use Rattle.std.specs.Prelude.{◌≡◌, ◌≤◌, ℕ, List, length};
ghost use Rattle.yak_io.specs.declared.TheConstants.{INPUT_LIMIT};
ghost use Rattle.script_text.specs.Printing.{script_text};
ghost use Rattle.script_text.specs.Scripts.{IsScript};
ghost use Rattle.yak.specs.declared.forms.TheConstants.{MAX_ROUNDS};
ghost use Rattle.yak.specs.declared.forms.Form.{Form};
ghost use Rattle.yak.specs.Forms.{IsForm};
ghost use Rattle.yak.specs.Generator.{generated};
ghost use Rattle.yak.specs.Numbers.{AreNumbers};

/// Words are of one form at most.
#[tactic(auto, using(crate::proofs::Words::one_form))]
pub fn law_one_form()
    ensures { (words : List (List ℕ)) (one other : Form) → IsForm words one → IsForm words other → one ≡ other }
{}

/// The text of a generated script is that script, and no longer than an input may be.
#[tactic(auto, using(crate::proofs::Rounds::reads, crate::proofs::Rounds::text_short))]
pub fn law_generated()
    ensures script { (rounds : ℕ) → IsScript (script_text (generated rounds)) (generated rounds) }
    ensures short { (rounds : ℕ) → rounds ≤ MAX_ROUNDS → length (script_text (generated rounds)) ≤ INPUT_LIMIT }
{}

/// The numbers of the formats are those that `docs/FORMAT.md` tells, whatever constants they are made of.
#[tactic(auto, using(crate::proofs::Numerals::numerals))]
pub fn law_numbers()
    ensures { AreNumbers }
{}
