//! Laws: what `replay` makes of what `genesis` writes, and what the test of soundness says.

ghost use Rattle.one_chain.specs.laws.MadeGenesis.{MakesWhatIsReplayed};
ghost use Rattle.one_chain.specs.laws.Soundness.{SoundnessIsTested};

/// What `genesis` writes is a genesis file that `replay` takes, under either preset.
pub fn made_genesis_is_replayed()
    ensures { MakesWhatIsReplayed }
{}

/// The law that the test by which the definitions of `duties` take a state is true exactly of the sound states. It does
/// nothing when it runs.
pub fn soundness_is_tested()
    ensures { SoundnessIsTested }
{}
