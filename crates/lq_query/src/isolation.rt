ghost use Rattle.lq_query.specs.Isolation.{IsIsolated};

use lq_statehist::{history_is_its_own, slices_have_outputs};

/// What keeps one customer's hosts from another: states that agree in all that a contact sees, as
/// `Agrees` says, give it the same reply to each query, byte for byte. The call does nothing; its
/// contract is this law over the replies that `answer` gives.
pub fn replies_are_isolated()
    ensures { IsIsolated }
{
    history_is_its_own();
    slices_have_outputs();
}
