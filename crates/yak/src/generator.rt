//! The script of `gen`.
ghost use Rattle.std.specs.Prelude.{◌≡◌, ◌≤◌, ◌<◌, ◌+◌, ◌++◌, ◌∷◌, ◌^◌, ℕ, [], length, IfOk, OnOk};
ghost use Rattle.script_text.specs.Printing.{IsValid, script_text};
ghost use Rattle.script_text.specs.Scripts.{IsScript};
ghost use Rattle.yak.specs.Generator.{commands, generated, kind, numbered, rounds};

use crate::forms::MAX_ROUNDS;
use object_layout::{Call, NoMemory};
use script_text::{Line, ReadError, Script, print_script, read_script};
use std::alloc::Global;
use yak_io::INPUT_LIMIT;

/// The number after a number.
fn next_number(x: u32) -> u32
    requires { x < 65537 }
    ensures next { result ≡ Rattle.yak.specs.Generator.next_number x }
    ensures small { result < 65537 }
{
    (75 * x + 74) % 65537
}

/// Puts a command on the next line.
fn push_line(lines: &mut Vec<Line>, command: (u8, Call)) -> Result<(), NoMemory>
    requires { length lines.old.items < 2 ^ 30 }
    ensures { OnOk result (lines.new.items ≡ lines.old.items ++ numbered (length lines.old.items + 2) (command ∷ [])) }
{
    let line = Line {
        number: lines.len() as u32 + 2,
        thread: command.0,
        call: command.1,
    };
    lines.push(line).map_err(|_| NoMemory)
}

/// Puts commands on the next lines.
fn push_lines(lines: &mut Vec<Line>, commands: &[(u8, Call)]) -> Result<(), NoMemory>
    requires { length lines.old.items + length commands.now < 2 ^ 30 }
    ensures { OnOk result (lines.new.items ≡ lines.old.items ++ numbered (length lines.old.items + 2) commands.now) }
{
    'commands: for command in commands {
        push_line(lines, *command)?;
    }
    Ok(())
}

/// A round that moves an object out of a region.
fn push_moving(lines: &mut Vec<Line>, t: u8, f: u32, k: u32) -> Result<(), NoMemory>
    requires { length lines.old.items < 2 ^ 29 }
    ensures { (u : ℕ) → OnOk result (lines.new.items ≡ lines.old.items ++ numbered (length lines.old.items + 2) (kind t u f k 0)) }
{
    let commands = [
        (t, Call::Begin),
        (t, Call::New(3)),
        (t, Call::New(k)),
        (t, Call::Store(1, 0, 2)),
        (t, Call::Store(0, f, 1)),
        (t, Call::End),
        (t, Call::Pop),
        (t, Call::Pop),
    ];
    push_lines(lines, &commands)
}

/// A round whose object dies.
fn push_dying(lines: &mut Vec<Line>, t: u8, k: u32) -> Result<(), NoMemory>
    requires { length lines.old.items < 2 ^ 29 }
    ensures { (u f : ℕ) → OnOk result (lines.new.items ≡ lines.old.items ++ numbered (length lines.old.items + 2) (kind t u f k 1)) }
{
    let commands = [
        (t, Call::Begin),
        (t, Call::New(k)),
        (t, Call::Pop),
        (t, Call::End),
    ];
    push_lines(lines, &commands)
}

/// A round whose object another thread's stack holds at the end.
fn push_held(lines: &mut Vec<Line>, t: u8, u: u8, f: u32, k: u32) -> Result<(), NoMemory>
    requires { length lines.old.items < 2 ^ 29 }
    ensures { OnOk result (lines.new.items ≡ lines.old.items ++ numbered (length lines.old.items + 2) (kind t u f k 2)) }
{
    let commands = [
        (t, Call::Begin),
        (t, Call::New(k)),
        (t, Call::Store(0, f, 1)),
        (u, Call::Load(0, f)),
        (t, Call::Null),
        (t, Call::Store(0, f, 2)),
        (t, Call::Pop),
        (t, Call::Pop),
        (t, Call::End),
        (u, Call::Get(1)),
        (u, Call::Pop),
    ];
    push_lines(lines, &commands)
}

/// Puts the commands of a round on the next lines.
fn push_round(lines: &mut Vec<Line>, t: u8, x: u32) -> Result<(), NoMemory>
    requires few { length lines.old.items < 2 ^ 29 }
    requires thread { t ≤ 4 }
    requires number { x < 65537 }
    ensures { OnOk result (lines.new.items ≡ lines.old.items ++ numbered (length lines.old.items + 2) (Rattle.yak.specs.Generator.round t x)) }
{
    let f = x / 3 % 16;
    let k = x / 48 % 20;
    let rest = x % 3;
    if rest == 0 {
        return push_moving(lines, t, f, k);
    }
    if rest == 1 {
        return push_dying(lines, t, k);
    }
    push_held(lines, t, t % 4 + 1, f, k)
}

/// Puts the commands of all rounds on lines.
fn push_rounds(lines: &mut Vec<Line>, seed: u32) -> Result<(), NoMemory>
    requires { (lines.old.items ≡ []) × (seed ≤ MAX_ROUNDS) }
    ensures { OnOk result (lines.new.items ≡ numbered 2 (rounds seed seed)) }
{
    let mut x = seed % 65537;
    let mut before = 0;
    'rounds: while before < seed {
        x = next_number(x);
        push_round(lines, (before % 4 + 1) as u8, x)?;
        before += 1;
    }
    Ok(())
}

/// The script of so many rounds.
#[tactic(auto, using(crate::proofs::Rounds::valid, crate::proofs::Rounds::few_rounds, crate::proofs::Rounds::lines_few, crate::proofs::Rounds::lines_on))]
fn make_script(alloc: Global, seed: u32) -> Result<Script, NoMemory>
    requires { seed ≤ MAX_ROUNDS }
    ensures { IfOk result (λ script. script ≡ generated seed) }
{
    let mut lines = Vec::new(alloc);
    push_rounds(&mut lines, seed)?;
    push_lines(&mut lines, &[(1, Call::Collect), (1, Call::Census)])?;
    Ok(Script {
        pages: 64,
        threads: 4,
        lines,
    })
}

/// The text of the script of so many rounds.
#[tactic(auto, using(crate::proofs::Rounds::valid, crate::proofs::Rounds::text_short))]
fn generated_text(alloc: Global, seed: u32) -> Result<Vec<u8>, NoMemory>
    requires { seed ≤ MAX_ROUNDS }
    ensures text { IfOk result (λ text. text.items ≡ script_text (generated seed)) }
    ensures reads { IfOk result (λ text. IsScript text.items (generated seed)) }
    ensures short { IfOk result (λ text. length text.items ≤ INPUT_LIMIT) }
{
    let script = make_script(alloc, seed)?;
    print_script(alloc, &script)
}

/// The script of so many rounds, read from its text.
#[tactic(auto, using(crate::proofs::Rounds::valid))]
pub fn generated_script(alloc: Global, seed: u32) -> Result<Script, NoMemory>
    requires { seed ≤ MAX_ROUNDS }
    ensures script { IfOk result (λ script. script ≡ generated seed) }
    ensures valid { IfOk result (λ script. IsValid script) }
{
    let text = generated_text(alloc, seed)?;
    match read_script(alloc, &text) {
        Ok(script) => Ok(script),
        Err(ReadError::Memory) => Err(NoMemory),
        Err(ReadError::Refused(_)) => unreachable!(),
    }
}
