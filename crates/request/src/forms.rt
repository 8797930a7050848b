//! How inputs are written.
ghost use Rattle.request.specs.Forms.{ReadsBack};

/// That every input is written in some way, and is read as what it was written from. It does nothing: its promise is a theorem.
pub fn input_forms()
    ensures { ReadsBack }
{}
