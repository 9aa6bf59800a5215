//! Features, by their names.
use cases::CaseError;
use rkt_base::NoMemory;
use rkt_shield::Feature;

const FEATURES: [Feature; 39] = [
    Feature::Accelerometer,
    Feature::AmbientLightSensor,
    Feature::Autoplay,
    Feature::Battery,
    Feature::Camera,
    Feature::CrossOriginIsolated,
    Feature::Displaycapture,
    Feature::DocumentDomain,
    Feature::EncryptedMedia,
    Feature::ExecutionWhileNotRendered,
    Feature::ExecutionWhileOutOfviewport,
    Feature::Fullscreen,
    Feature::Geolocation,
    Feature::Gyroscope,
    Feature::Magnetometer,
    Feature::Microphone,
    Feature::Midi,
    Feature::NavigationOverride,
    Feature::Payment,
    Feature::PictureInPicture,
    Feature::PublickeyCredentialsGet,
    Feature::ScreenWakeLock,
    Feature::SyncXhr,
    Feature::Usb,
    Feature::WebShare,
    Feature::XrSpatialTracking,
    Feature::ClipboardRead,
    Feature::ClipboardWrite,
    Feature::Gamepad,
    Feature::SpeakerSelection,
    Feature::InterestCohort,
    Feature::ConversionMeasurement,
    Feature::FocusWithoutUserActivation,
    Feature::Hid,
    Feature::IdleDetection,
    Feature::Serial,
    Feature::SyncScript,
    Feature::TrustTokenRedemption,
    Feature::VerticalScroll,
];

/// The feature of this name.
pub fn read_feature(name: &str) -> Result<Feature, CaseError> {
    match FEATURES
        .iter()
        .copied()
        .find(|feature| feature.as_str() == name)
    {
        Some(feature) => Ok(feature),
        None => Err(CaseError::Line),
    }
}

fn push_feature(out: &mut String, feature: Feature) -> Result<(), NoMemory> {
    if !out.is_empty() {
        out.push_str(", ")?;
    }
    write!(out, "{feature}")
}

/// Adds the names of all features.
pub fn push_features(out: &mut String) -> Result<(), CaseError> {
    for feature in FEATURES {
        push_feature(out, feature)?;
    }
    Ok(())
}
