//! The laws of fronts, on which a replay in any order stands. Each is the contract of a function
//! that does nothing.
ghost use Rattle.octet_clock.specs.Laws.{FrontsArePrefixes, FrontIsOfLog, LawfulLogIsUntied, NoFrontIsAmiss, OneOrderGives, OneOrderTells, UntiedDrawWaits, FenceWaits, UntiedFrontGoesOn, WholeFrontIsOrder};

/// Where the lowest order is lawful and its journals are ordered, the journals of each lawful front
/// are the first events of its journals, so that no thread is ever amiss.
pub fn fronts_agree()
    ensures prefixes { FrontsArePrefixes }
    ensures amiss { NoFrontIsAmiss }
{}

/// A lawful front is a lawful order once each thread is through. Its journals are ordered exactly
/// where the lowest order is lawful and has ordered journals; then it comes to the same outcome
/// and the same journals as that.
pub fn any_order_tells()
    ensures whole { WholeFrontIsOrder }
    ensures tells { OneOrderTells }
    ensures gives { OneOrderGives }
{}

/// A log that has a lawful order is untied, and a lawful front is a front of the log alone. After a
/// lawful front of an untied log each thread is through, or some thread may step, or some thread is
/// amiss; and a draw waits for the draw before it alone, and a fence for the draw of its number.
pub fn untied_goes_on()
    ensures lawful { LawfulLogIsUntied }
    ensures front { FrontIsOfLog }
    ensures goes_on { UntiedFrontGoesOn }
    ensures draw { UntiedDrawWaits }
    ensures fence { FenceWaits }
{}
