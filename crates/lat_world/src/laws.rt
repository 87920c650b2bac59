//! Laws of worlds: a function that does nothing, whose clause is the law.
ghost use Rattle.lat_world.specs.Worlds.{ForcedMapsAreDetermined};

/// At most one map is forced between two members.
pub fn forced_maps_are_determined()
    ensures determined { ForcedMapsAreDetermined }
{}
