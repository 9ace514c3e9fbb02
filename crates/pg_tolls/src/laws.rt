//! The laws of tolls: statements about games, proved by functions with an empty body.
ghost use Rattle.pg_tolls.specs.Captured.{AccountsLaw};
ghost use Rattle.pg_tolls.specs.Charges.{TariffLaw, TollsBoundLaw};

/// A game keeps accounts. Each game under facts makes of the men of each colour a plan that takes no
/// more plies than the colour has in it, whose marked steps go to the squares where the colour
/// captures, and whose men are captured on the squares where the other does, as often.
pub fn accounts_law()
    ensures { AccountsLaw }
{}

/// The law of tariffs. Where facts hold and no plan of White and no plan of Black are charged together
/// at most what the plies pay for, by whatever tariff, no game of that many plies ends on the diagram.
pub fn tariff_law()
    ensures { TariffLaw }
{}

/// The law of the bound by tolls: where the test holds for a number of plies, by whatever tariff, no game of that many
/// ends on the diagram.
pub fn tolls_bound_law()
    ensures { TollsBoundLaw }
{}
