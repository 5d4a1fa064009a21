//! The moves of an exchange are the exchange.

ghost use Rattle.std.specs.Prelude.{◌≡◌, ◌<◌};
ghost use Rattle.pv_tree.specs.declared.Tree.{Tree};
ghost use Rattle.pv_fault.specs.declared.Outcome.{Outcome};
ghost use Rattle.pv_func.specs.declared.exchange.Move.TheVariants as move;
ghost use Rattle.pv_func.specs.declared.exchange.WrapRun.{WrapRun};
ghost use Rattle.pv_func.specs.Wrapper.{Wrapper};
ghost use Rattle.pv_func.specs.Exchange.{exchange, first_move, next_move, comes_to, asks_from};

/// What comes of the first move is what comes of the exchange, each later move keeps it, and after
/// each ask fewer are left.
#[tactic(auto, using(crate::proofs::Exchanges::begins, crate::proofs::Exchanges::goes_on, crate::proofs::Exchanges::fewer))]
pub fn moves_are_the_exchange()
    ensures begins { (w : Wrapper) (t : Tree) (inner : Tree → Outcome) → comes_to w t inner (first_move w t) ≡ exchange w t inner }
    ensures goes_on { (w : Wrapper) (t : Tree) (inner : Tree → Outcome) (run : WrapRun) (input : Tree)
        → comes_to w t inner (next_move w t run (inner input)) ≡ comes_to w t inner (move.Ask run input) }
    ensures fewer { (w : Wrapper) (t : Tree) (run : WrapRun) (input : Tree) (o : Outcome)
        → asks_from (next_move w t run o) < asks_from (move.Ask run input) }
{}
