//! What follows of a chain's list from `IsChain` alone.
ghost use Rattle.std.specs.Prelude.{◌≡◌, ◌<◌, ◌≤◌, ℕ, List};
ghost use Rattle.link_lists.specs.Grid.{Grid, times};
ghost use Rattle.link_lists.specs.Chains.{Ends, IsChain, StandsIn, list_of};

/// A chain is one list: the one that is found by following it. Its nodes are there, and each can be named in a call.
/// Does nothing; who calls it has these laws for every chain.
pub fn a_chain_is_one_list()
    ensures found { (g : Grid) (c : Ends) (xs : List ℕ) → IsChain g c xs → list_of g c ≡ xs }
    ensures exists { (g : Grid) (c : Ends) (xs : List ℕ) (x : ℕ) → IsChain g c xs → 1 ≤ times x xs → x < g.nodes }
    ensures present { (g : Grid) (c : Ends) (xs : List ℕ) (x : ℕ) → IsChain g c xs → 1 ≤ times x xs → StandsIn g c x }
{}
