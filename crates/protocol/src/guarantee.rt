// The theorems, each carried by a contract.
ghost use Rattle.protocol.specs.Guarantee.{Guaranteed};
ghost use Rattle.protocol.specs.Theorems.{NamesExactly, RefusalKeeps, OthersKeep, SameFrames};

// The guarantee, whole: for every decoder, over every run of the six calls, of each block in it.
pub fn guarantee_stands()
    ensures { Guaranteed }
{}

// A turn that names k positions names exactly k that were not known, and stays within the cap.
pub fn turns_name_exactly()
    ensures { NamesExactly }
{}

// A call has one refusal at the most; a refusal changes nothing, and no call changes another end.
pub fn refusals_change_nothing()
    ensures kept { RefusalKeeps }
    ensures others { OthersKeep }
{}

// An end's frame of a round is the same bytes whenever it is written.
pub fn frames_stay_the_same()
    ensures { SameFrames }
{}
