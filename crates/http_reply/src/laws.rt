//! Laws of the verdict on a reply.
ghost use Rattle.http_reply.specs.Laws.{IsOneVerdict, EachHasVerdict, GivesWhole, GivesTruth};

/// Law: a reply has at most one verdict.
pub fn one_verdict()
    ensures { IsOneVerdict }
{}

/// Law: it cannot be that a reply has none.
pub fn each_reply_has_a_verdict()
    ensures { EachHasVerdict }
{}

/// Law: a whole honest reply gives the whole resource from the place that was asked on.
pub fn honest_reply_gives_the_whole()
    ensures { GivesWhole }
{}

/// Law: what a truthful reply gives, however early it was cut off, is true of the resource.
pub fn truthful_reply_gives_the_truth()
    ensures { GivesTruth }
{}
