//! The rule of the exchange holds between any two atomic steps.

ghost use Rattle.std.specs.Prelude.{◌≡◌, Some};
ghost use Rattle.dem_model.specs.Exchange.{Cargo, Exchange, Follows, IsSoundFor, IsPostedLast, IsAnswer, Full};
ghost use Rattle.dem_swap.specs.ExchangeEvents.{place_of, Moves};
ghost use Rattle.dem_model.specs.ExchangeSteps.{Kind, Leads, Reached};

/// Every exchange that atomic steps reach, in any order of the two sides, follows the rule.
pub fn exchange_law()
    ensures kept { (kind : Kind) (x y : Exchange) → Follows x → Leads kind x y → Follows y }
    ensures always { (x : Exchange) → Reached x → Follows x }
    ensures events { (kind : Kind) (x y : Exchange) → Follows x → Leads kind x y → Moves kind (place_of x) (place_of y) }
    ensures posted { (x : Exchange) (c : Cargo) → Follows x → x.turn ≡ 1 → x.slot ≡ Full c → IsPostedLast x.dynamics c.snap × IsSoundFor x.dynamics.terms c.snap }
    ensures delivered { (x : Exchange) (c : Cargo) → Follows x → x.turn ≡ 3 → x.slot ≡ Full c → IsPostedLast x.dynamics c.snap × IsAnswer x.dynamics.terms c }
{}
