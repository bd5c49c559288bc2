// Laws of the content of added documents.
ghost use Rattle.alta_memlevel.specs.Laws.{HaveContent, HaveLevel, HaveOneContent, HavePart, LiveAreAdded, LiveAreJoined, LiveReadBack, MayJoinBehind, ReadBack};

/// Documents that were added have one content, which has them and no others, keeps the rules of a level's content where there is
/// a document, and is empty where there is none. To leave documents out before is to join without them. Behind other contents
/// it may be joined with these.
pub fn drained_documents_are_kept()
    ensures has { HaveContent }
    ensures one { HaveOneContent }
    ensures back { ReadBack }
    ensures live_back { LiveReadBack }
    ensures part { HavePart }
    ensures level { HaveLevel }
    ensures live_joined { LiveAreJoined }
    ensures live_added { LiveAreAdded }
    ensures beside { MayJoinBehind }
{}
