//! The calls that a request comes to.
ghost use Rattle.std.specs.Prelude.{◌≡◌, [], ◌∷◌, ◌++◌, length, IfOk, OnOk};
ghost use Rattle.solving.specs.Plan.{plan_of, piece_steps, unanswered};

use runs::{Call, Reply, Step};
use std::alloc::{AllocError, Global};

/// Puts a call at the plan's end.
fn add(steps: &mut Vec<Step>, call: Call) -> Result<(), AllocError>
    ensures { OnOk result (steps.new.items ≡ steps.old.items ++ (unanswered call ∷ [])) }
{
    steps.push(Step {
        call,
        reply: Reply::Unanswered,
    })?;
    Ok(())
}

/// Reads a piece, and joins it to the piece that was made last, if there is one: each call so far has made a piece.
fn add_piece(steps: &mut Vec<Step>, from: usize, to: usize) -> Result<(), AllocError>
    ensures { OnOk result (steps.new.items ≡ steps.old.items ++ piece_steps (length steps.old.items) from to) }
{
    let made = steps.len();
    add(steps, Call::Read { from, to })?;
    if made > 0 {
        let (left, right) = (made, made - 1);
        add(steps, Call::Join { left, right })?;
    }
    Ok(())
}

/// The calls that read a file of `size` bytes in pieces, from the last back, each joined to what lies on its right, and finish the whole.
pub fn plan_calls(heap: Global, cuts: &[usize], size: usize) -> Result<Vec<Step>, AllocError>
    ensures { IfOk result (λ v. v.items ≡ plan_of cuts.now size) }
{
    let mut steps = Vec::new(heap);
    let mut to = size;
    for cut in cuts.iter().rev() {
        add_piece(&mut steps, *cut, to)?;
        to = *cut;
    }
    add_piece(&mut steps, 0, to)?;
    let whole = steps.len() - 1;
    add(&mut steps, Call::Finish { piece: whole })?;
    Ok(steps)
}
