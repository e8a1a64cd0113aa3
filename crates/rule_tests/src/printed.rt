// The certificates of three worked cases.

/// The certificate of a flat for three.
pub(crate) const FLAT: &str = "fairsplit 1
kind rent
members 3
rent 900
values 800 100 0
values 700 200 0
values 300 300 300
rooms 1 2 3
left 0 0 2702
right 21600 5397 5396
walks 0 0 100
ranks 0 0 1
prices 700 100 100
end
";

/// The certificate of an estate of three goods that two heirs value alike.
pub(crate) const ESTATE: &str = "fairsplit 1
kind goods
players 2
goods 3
limit 100000
who 1 2
values 400 300 300
values 400 300 300
owners 1 2 2
steps 2
tree ++-+-=++---
end
";

/// The certificate of a taxi for two.
pub(crate) const TAXI: &str = "fairsplit 1
kind fares
riders 2
places 2
flag 300
legs 1000 1500
legs 0 700
legs 900 0
who 1 2
at 1 2
set 1 1000 900
set 2 1500 700
set 3 1700
route 1 2
fares 750 1250
end
";
