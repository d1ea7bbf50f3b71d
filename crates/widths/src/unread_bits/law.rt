//! What follows where nothing gets past a profile, and nothing is stopped by it.
ghost use Rattle.widths.specs.Past.{GoByWhatIsRead, NothingGetsPast, NothingIsStopped};

use profile::Profile;

/// Where nothing gets past a profile and nothing is stopped by it, any two records that are alike to the kernel go equally far.
pub fn alike_calls_go_equally_far(profile: &Profile)
    ensures { NothingGetsPast profile.now → NothingIsStopped profile.now → GoByWhatIsRead profile.now }
{
    profile.rules();
}
