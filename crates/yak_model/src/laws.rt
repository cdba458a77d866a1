//! Laws over the definitions alone.
ghost use Rattle.yak_model.specs.Agreement.{MachinesAgree};
ghost use Rattle.yak_model.specs.Private.{FittingIsKept, NamesStayMade, PartsAreKept, PrivacyIsKept, SomethingIsKnown};
ghost use Rattle.yak_model.specs.Unique.{StatesAreUnique};

/// The graph and the spaces agree along every history.
pub fn agreement()
    ensures { MachinesAgree }
{}

/// The end of an epoch and a collection each lead to one state, and an end moves one number of objects.
pub fn uniqueness()
    ensures { StatesAreUnique }
{}

/// What one thread alone knows stays so, whatever entry comes.
pub fn privacy()
    ensures { PrivacyIsKept }
{}

/// Each name in the graph stays that of an object that was made.
pub fn freshness()
    ensures { NamesStayMade }
{}

/// What one thread alone knows fits pages, whatever entry comes.
pub fn fitting()
    ensures { FittingIsKept }
{}

/// A part of what one thread alone knows is so known, and stays such a part, whatever entry comes.
pub fn parts()
    ensures { PartsAreKept }
{}

/// Each entry makes some map of what one thread alone knows.
pub fn knowing()
    ensures { SomethingIsKnown }
{}
