//! Laws of what reads see, and of versions that stand for others.
ghost use Rattle.udt_model.specs.Greatest.{SeesTheGreatest, HasOneGreatest};
ghost use Rattle.udt_model.specs.Standing.{ImagesRise};

/// A read sees the one version of its key, up to its timestamp and its sequence, that none of these is newer than, and
/// nothing exactly where there is none of these.
pub fn reads_see_the_greatest()
    ensures greatest { SeesTheGreatest }
    ensures one { HasOneGreatest }
{}

/// Images of versions whose timestamps rise: theirs rise too, where the family keeps its timestamps or all were stripped.
pub fn images_rise()
    ensures { ImagesRise }
{}
