//! Laws of the format, as contracts of functions that do nothing.
ghost use Rattle.std.specs.Prelude.{◌≡◌, ℕ, List};
ghost use Rattle.script_text.specs.declared.faults.Bad.{Bad};
ghost use Rattle.script_text.specs.ScriptContents.{ScriptContents};
ghost use Rattle.object_layout.specs.declared.replies.Reply.{Reply as Said};
ghost use Rattle.script_text.specs.Printing.{AreWithin, IsValid, script_text};
ghost use Rattle.script_text.specs.Replies.{IsReply, reply_text, reply_words};
ghost use Rattle.script_text.specs.Scripts.{IsScript, IsBadLine};
ghost use Rattle.script_text.specs.Words.{words};

/// A text is one script at most.
#[tactic(auto, using(crate::proofs::Single::same_script))]
pub fn law_one_script()
    ensures { (bytes : List ℕ) (one other : ScriptContents) → IsScript bytes one → IsScript bytes other → one ≡ other }
{}

/// The text of a script that can be written, with numbers that a command can have, is that script.
#[tactic(auto, using(crate::proofs::Spelling::printed_script))]
pub fn law_printed_script()
    ensures { (script : ScriptContents) → IsValid script → AreWithin script.lines → IsScript (script_text script) script }
{}

/// A text is refused at one line and for one reason at most.
#[tactic(auto, using(crate::proofs::Single::same_refusal))]
pub fn law_one_refusal()
    ensures { (bytes : List ℕ) (one other : Bad) → IsBadLine bytes one → IsBadLine bytes other → one ≡ other }
{}

/// No text is both a script and refused.
#[tactic(auto, using(crate::proofs::Single::script_or_refusal))]
pub fn law_script_or_refusal()
    ensures { (bytes : List ℕ) (script : ScriptContents) (bad : Bad) → IsScript bytes script → IsBadLine bytes bad → ⊥ }
{}

/// No two replies have the same words.
#[tactic(auto, using(crate::proofs::Replied::same_reply))]
pub fn law_one_reply()
    ensures { (one other : Said) → IsReply one → IsReply other → reply_words one ≡ reply_words other → one ≡ other }
{}

/// The words of a reply's text.
#[tactic(auto, using(crate::proofs::Replied::reply_words_are))]
pub fn law_reply_words()
    ensures { (reply : Said) → IsReply reply → words (reply_text reply) ≡ reply_words reply }
{}
