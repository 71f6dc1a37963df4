//! What holds of the definitions alone: each form gives exactly one output for each input.
ghost use Rattle.std.specs.Prelude.{◌≡◌, ℕ, List, Some};
ghost use Rattle.kj_serve.specs.declared.forms.Form.{Form};
ghost use Rattle.kj_serve.specs.Ends.{Ends};
ghost use Rattle.kj_serve.specs.Outputs.{Gives};
ghost use Rattle.kj_serve.specs.Outside.{Outside, NoFault, Wrote};

/// A form gives at most one status and one output for an input.
pub fn one_output()
    ensures { (form : Form) (input a b : List ℕ) (s t : ℕ)
        → Gives form input s a → Gives form input t b → (s ≡ t) × (a ≡ b) }
{
    promise_script::one_script();
    promise_script::some_script();
    conn_record::one_recording();
    http_core::one_output();
}

/// A form gives a status and an output for each input.
pub fn some_output()
    ensures { (form : Form) (input : List ℕ)
        → (status : ℕ) × (output : List ℕ) × Gives form input status output }
{
    promise_script::some_script();
    conn_record::some_recording();
    http_core::some_output();
}

/// Where the octets are known, nothing failed and memory didn't run out, a form ends with what it
/// gives for them.
pub fn ends_with_output()
    ensures { (form : Form) (status : ℕ) (before after : Outside) (input : List ℕ)
        → Ends form status before after → before.left ≡ Some input → NoFault before after
        → (status ≡ 5 → ⊥)
        → (output : List ℕ) × Gives form input status output × Wrote before after output }
{}
