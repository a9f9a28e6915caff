// What partitions made of their own items, together.

ghost use Rattle.std.specs.Prelude.{IfOk};
ghost use Rattle.partitions.specs.Picking.{IsMerged, FitsParts};

use std::alloc::{AllocError, Global};

/// The items of all parts, in the order in which they were before each partition's were picked.
pub fn merged<T: Copy>(
    alloc: Global,
    numbers: &[usize],
    parts: &[Vec<T>],
) -> Result<Vec<T>, AllocError>
    requires { FitsParts numbers.now parts.now }
    ensures { IfOk result (λ all. IsMerged numbers.now parts.now all.items) }
{
    let mut taken = vec![in alloc; 0usize; parts.len()]?;
    let mut all = Vec::with_capacity(alloc, numbers.len())?;
    for number in numbers {
        let part = &parts[*number];
        let place = taken[*number];
        all.push(part[place])?;
        taken[*number] = place + 1;
    }
    Ok(all)
}
