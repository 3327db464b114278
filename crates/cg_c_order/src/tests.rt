//! A worked kernel.
ghost use Rattle.std.specs.Prelude.{◌≡◌, ◌∷◌, [], IfOk, length};
ghost use Rattle.cg_word.specs.declared.op.Op.TheVariants.{Iter};
ghost use Rattle.cg_model.specs.Kernel.{IsKernel};
ghost use Rattle.cg_c_order.specs.Accesses.{kernel_with};

use crate::access::Access;
use crate::ordering::ordered;
use cg_model::{Items, Name, Node, OrderEdge};
use cg_word::Op;
use std::alloc::{AllocError, Global};
use std::test::Fail;

/// Returns a node without operands of the given `name`.
fn counter(alloc: Global, name: &str) -> Result<Node, AllocError>
    ensures { IfOk result (λ n. n ≡ record { name = name.now; op = Iter; port = 0; operands = [] }) }
{
    Ok(Node {
        name: Name::new(String::from_str(alloc, name)?),
        op: Op::Iter,
        port: 0,
        operands: Items::new(Vec::new(alloc)),
    })
}

/// Returns three nodes that are the nodes of a kernel.
fn three_nodes(alloc: Global) -> Result<Vec<Node>, AllocError>
    ensures long { IfOk result (λ nodes. length nodes.items ≡ 3) }
    ensures valid { IfOk result (λ nodes. IsKernel (kernel_with nodes.items [])) }
{
    let mut nodes = Vec::new(alloc);
    nodes.push(counter(alloc, "a")?)?;
    nodes.push(counter(alloc, "b")?)?;
    nodes.push(counter(alloc, "c")?)?;
    Ok(nodes)
}

#[test]
fn three_stores_are_a_ring(rt: HostRuntime) -> Result<(), Fail> {
    let accesses = [
        Access {
            node: 0,
            array: 0,
            stores: true,
        },
        Access {
            node: 1,
            array: 0,
            stores: true,
        },
        Access {
            node: 2,
            array: 0,
            stores: true,
        },
    ];
    let kernel = ordered(rt.alloc(), three_nodes(rt.alloc())?, &accesses)?;
    let edges = [
        OrderEdge {
            from: 0,
            to: 1,
            distance: 0,
        },
        OrderEdge {
            from: 1,
            to: 2,
            distance: 0,
        },
        OrderEdge {
            from: 2,
            to: 0,
            distance: 1,
        },
    ];
    assert_eq!(rt; kernel.order(), edges.as_slice());
    Ok(())
}
