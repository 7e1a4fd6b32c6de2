ghost use Rattle.std.specs.Prelude.{◌≡◌, ◌^◌, ◌<◌, length, IfOk};
ghost use Rattle.round_log.specs.Orders.{NamesEachOnce};
ghost use Rattle.cons_graph.specs.Solutions.{value_of};
ghost use Rattle.liao_wong.specs.Sorted.{IsInOrderOf};

use std::alloc::{AllocError, Global};

/// The variables that a list has a value for, in order of (value, number): those of less value first, and of equal ones
/// the one of less number. The cost is that of a sort. The only refusal is want of memory.
pub fn sort_order(alloc: Global, x: &[i64]) -> Result<Vec<u32>, AllocError>
    requires { length x.now < 2 ^ 32 }
    ensures names { IfOk result (λ order. NamesEachOnce (length x.now) order.items) }
    ensures in_order { IfOk result (λ order. IsInOrderOf (value_of x.now) order.items) }
{
    let mut order = Vec::new(alloc);
    for v in 0..x.len() as u32 {
        order.push(v)?;
    }
    order.sort_unstable_by_key(|v| (value_at(x, *v), *v));
    Ok(order)
}

// The value of a variable, or 0 where there is none.
fn value_at(x: &[i64], v: u32) -> i64
    ensures { result ≡ value_of x.now v }
{
    match x.get(v as usize) {
        Some(value) => *value,
        None => 0,
    }
}
