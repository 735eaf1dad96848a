//! What a store has to keep.

ghost use Rattle.std.specs.Prelude.{◌≡◌, List, true, false};
ghost use Rattle.ua_types.specs.Configuration.{Configuration};
ghost use Rattle.ua_space.specs.Nodes.{SpaceState};
ghost use Rattle.server_core.specs.declared.event.Event.{Event};
ghost use Rattle.server_laws.specs.Storing.{StoreHasWhatChanged, NothingIsStored};

/// Whatever happens, and whatever was kept before, who has kept what the steps say, one after the other, has the value of each variable
/// as the server has it, or nothing was kept of it, and the server has what it began with; so it is at each time of its history. Where
/// the configuration has no store, no step says anything for one.
pub fn store_has_what_changed()
    ensures all { (config : Configuration) (space : SpaceState) (events : List Event) → config.has_store ≡ true → StoreHasWhatChanged config space events }
    ensures nothing { (config : Configuration) (space : SpaceState) (events : List Event) → config.has_store ≡ false → NothingIsStored config space events }
{}
