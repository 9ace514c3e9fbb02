//! The laws of travel: statements about games and diagrams, proved by functions with an empty body.
ghost use Rattle.pg_travel.specs.Needs.{DistancesLaw, TravelLaw};
ghost use Rattle.pg_travel.specs.Origins.{OriginsLaw};

/// The origins law. For each game from a position to a placement, and each colour, there are a way
/// and a map from the colour's men at the end to men of the colour at the start, no two to one, such
/// that the plies of walks of free steps from each origin, and one for castling, are together at most
/// the plies of the colour. So they are with distances in the place of walks.
pub fn origins_law()
    ensures walks { OriginsLaw }
    ensures distances { DistancesLaw }
{}

/// The travel law. Where the need of a colour does not exist or is above its plies left, no game of as many plies as
/// are left ends on the placement.
pub fn travel_law()
    ensures { TravelLaw }
{}
