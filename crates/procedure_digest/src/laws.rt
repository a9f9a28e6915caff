// A law of the bytes that are digested.

ghost use Rattle.std.specs.Prelude.{◌≡◌, List};
ghost use Rattle.verifier.specs.Checked.{Checked};
ghost use Rattle.procedure_digest.specs.Bytes.{procedures_bytes, AreInRange};

/// The bytes tell the procedures: their number, and of each its declaration and its code.
pub fn procedures_tell()
    ensures { (ps qs : List Checked) → AreInRange ps → AreInRange qs → procedures_bytes ps ≡ procedures_bytes qs → ps ≡ qs }
{}
