//! A law of manifests. The function that states it does nothing.
ghost use Rattle.manifest.specs.Folds.{FrontsAreManifests};

/// The frames at the front of a manifest, where there is one, are those of a manifest: so is what is left where the last ones
/// are gone.
pub fn fronts_are_manifests()
    ensures { FrontsAreManifests }
{}
