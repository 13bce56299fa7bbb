//! More nodes under a chain that stands.
ghost use Rattle.std.specs.Prelude.{◌≡◌, ◌∷◌, [], IfOk};
ghost use Rattle.link_lists.specs.Chains.{IsChain};

use link_lists::{Chain, Nodes, OutOfMemory};
use std::alloc::Global;
use std::process::Abort;
use std::test::Fail;

/// Two nodes, and the chain of node 1 and node 0.
fn one_and_zero(alloc: Global) -> Result<(Nodes, Chain), OutOfMemory>
    ensures { IfOk result (λ r. (r.0.nodes ≡ 2) × IsChain r.0 r.1 (1 ∷ 0 ∷ [])) }
{
    let mut nodes = Nodes::new(alloc, 1);
    let mut chain = Chain::new(0);
    nodes.grow(2)?;
    chain.push_back(&mut nodes, 1);
    chain.push_back(&mut nodes, 0);
    Ok((nodes, chain))
}

/// The chain tells node 1 and node 0, in both directions.
fn check(rt: &impl Abort, nodes: &Nodes, chain: &Chain)
    requires { IsChain nodes.now chain.now (1 ∷ 0 ∷ []) }
{
    assert_eq!(rt; [chain.front(), chain.back()], [Some(1), Some(0)]);
    assert_eq!(rt;
        [chain.prev(nodes, 1), chain.next(nodes, 1)],
        [None, Some(0)]
    );
    assert_eq!(rt;
        [chain.prev(nodes, 0), chain.next(nodes, 0)],
        [Some(1), None]
    );
}

#[test]
fn more_nodes_leave_the_chain(rt: HostRuntime) -> Result<(), Fail> {
    let (mut nodes, mut chain) = one_and_zero(rt.alloc())?;
    check(&rt, &nodes, &chain);
    nodes.grow(9)?;
    check(&rt, &nodes, &chain);
    chain.push_back(&mut nodes, 8);
    assert_eq!(rt; chain.back(), Some(8));
    Ok(())
}
