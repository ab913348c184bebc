ghost use Rattle.std.specs.Prelude.{◌≡◌, ℕ, List};
ghost use Rattle.h2_command.specs.declared.command.Command.{Command};
ghost use Rattle.h2_script.specs.declared.fault.LineFault.{LineFault};
ghost use Rattle.h2_script.specs.declared.fault.ParseFault.{ParseFault};
ghost use Rattle.h2_script.specs.Scripts.{IsScript, IsFaultOfScript};
ghost use Rattle.h2_script.specs.LawfulScripts.{IsLawfulScript};

/// A law: bytes are one script at most, a script has no fault, and bytes have one first fault at most. So
/// [`crate::parse`] reads every script where there is memory enough, and refuses all other bytes with
/// exactly this line and this fault. A script can hold each command that bytes mean, and its clients are
/// below 8.
pub fn script_law()
    ensures one_script { (bytes : List ℕ) (p q : List (List (ℕ × Command))) → IsScript bytes p → IsScript bytes q → p ≡ q }
    ensures no_fault { (bytes : List ℕ) (p : List (List (ℕ × Command))) (line : ℕ) (why : LineFault) → IsScript bytes p
        → IsFaultOfScript bytes (ParseFault.Script line why) → ⊥ }
    ensures one_fault { (bytes : List ℕ) (line other : ℕ) (why because : LineFault) → IsFaultOfScript bytes (ParseFault.Script line why)
        → IsFaultOfScript bytes (ParseFault.Script other because) → ParseFault.Script line why ≡ ParseFault.Script other because }
    ensures lawful { (bytes : List ℕ) (p : List (List (ℕ × Command))) → IsScript bytes p → IsLawfulScript p }
{}
