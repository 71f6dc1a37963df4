//! Laws of the text of scripts.
ghost use Rattle.std.specs.Prelude.{◌≡◌, ◌⊎◌, List, ℕ, Result, Err};
ghost use Rattle.promise_commands.specs.Script.{Script};
ghost use Rattle.promise_script.specs.declared.meaning.Meaning.{Meaning};
ghost use Rattle.promise_script.specs.declared.reader.ReadRefused.{ReadRefused};
ghost use Rattle.promise_script.specs.ScriptText.{Means};
ghost use Rattle.promise_script.specs.Scripts.{IsScriptText, IsBadLine, IsNotBuiltLine, IsReadAs};

/// A line means one thing.
pub fn one_line()
    ensures { (text : List ℕ) (a b : Meaning) → Means text a → Means text b → a ≡ b }
{}

/// A text is the text of one script at most, and has one line at fault at most. So whatever it is
/// read as is one thing, as long as memory lasts.
pub fn one_script()
    ensures script { (text : List ℕ) (a b : Script) → IsScriptText text a → IsScriptText text b
        → a ≡ b }
    ensures bad { (text : List ℕ) (a b : ℕ) → IsBadLine text a → IsBadLine text b → a ≡ b }
    ensures not_built { (text : List ℕ) (a b : ℕ) → IsNotBuiltLine text a → IsNotBuiltLine text b
        → a ≡ b }
    ensures reading { (text : List ℕ) (a b : Result Script ReadRefused)
        → IsReadAs text a → IsReadAs text b
        → (a ≡ Err ReadRefused.NoMemory → ⊥) → (b ≡ Err ReadRefused.NoMemory → ⊥) → a ≡ b }
{}

/// Octets are the text of a script, or have a bad line, or a line that isn't built; and no two of
/// these hold.
pub fn some_script()
    ensures some { (text : List ℕ) → ((script : Script) × IsScriptText text script)
        ⊎ (((line : ℕ) × IsBadLine text line) ⊎ ((line : ℕ) × IsNotBuiltLine text line)) }
    ensures not_bad { (text : List ℕ) (script : Script) (line : ℕ)
        → IsScriptText text script → IsBadLine text line → ⊥ }
    ensures built { (text : List ℕ) (script : Script) (line : ℕ)
        → IsScriptText text script → IsNotBuiltLine text line → ⊥ }
    ensures either { (text : List ℕ) (a b : ℕ) → IsBadLine text a → IsNotBuiltLine text b → ⊥ }
{}
