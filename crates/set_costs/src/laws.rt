// Laws about the rows of a table and about the limits, which hold for all cases. Each is the contract of a function that does
// nothing.
ghost use Rattle.std.specs.Prelude.{◌≡◌, ◌<◌, ◌^◌, List, ℕ, [], ◌∷◌, ◌++◌, length};
ghost use Rattle.bid_rules.specs.declared.cases.FareCase.{FareCase};
ghost use Rattle.bid_rules.specs.Coalitions.{riders_in};
ghost use Rattle.bid_rules.specs.Facts.{IsValidFareCase};
ghost use Rattle.bid_rules.specs.FareLimits.{most_sum};
ghost use Rattle.set_costs.specs.Table.{HoldsCosts, ListsCosts, route_costs};

/// A table begins with no rows, and each further row is that of the next set.
pub fn rows_law()
    ensures none { (case : FareCase) → IsValidFareCase case → ListsCosts case [] }
    ensures more { (case : FareCase) (rows : List (List ℕ)) → ListsCosts case rows
        → length rows < 2 ^ length case.at.items
        → ListsCosts case (rows ++ route_costs case (riders_in (length rows)) ∷ []) }
    ensures all { (case : FareCase) (rows : List (List ℕ)) → HoldsCosts case rows
        → IsValidFareCase case }
{}

/// No sum over all orders overflows a signed 64-bit number.
pub fn sum_limits_law()
    ensures { most_sum < 2 ^ 63 }
{}
