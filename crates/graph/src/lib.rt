// Theorems on directed graphs, each carried by a function whose contract is its statement. The
// functions do nothing: what they are for is that this crate is accepted only with the proofs.
#![tactic(auto)]

ghost use Rattle.graph.specs.Elimination.{EliminationLaw};
ghost use Rattle.graph.specs.Orders.{OrderLaw};
ghost use Rattle.graph.specs.Ranks.{RankLaw};

// On a finite set of nodes there is no ring exactly when some rank rises along every edge.
pub fn ringless_means_ranked()
    ensures { RankLaw }
{}

// Eliminating a node, with a bridge for every way through it, keeps rings.
pub fn elimination_keeps_rings()
    ensures { EliminationLaw }
{}

// Nodes in an order leave no ring, and a list that goes round is one.
pub fn orders_exclude_rings()
    ensures { OrderLaw }
{}
