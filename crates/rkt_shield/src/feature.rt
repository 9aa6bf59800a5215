ghost use Rattle.std.specs.Prelude.{◌≡◌, Some};
ghost use Rattle.rkt_shield.specs.Feature.{feature_text};

use std::fmt;

/// A feature of browsers that a site may permit or forbid to itself and to what it shows.
#[derive(Clone, Copy, Debug, PartialEq, Eq, Hash)]
pub enum Feature {
    Accelerometer,
    AmbientLightSensor,
    Autoplay,
    Battery,
    Camera,
    CrossOriginIsolated,
    Displaycapture,
    DocumentDomain,
    EncryptedMedia,
    ExecutionWhileNotRendered,
    ExecutionWhileOutOfviewport,
    Fullscreen,
    Geolocation,
    Gyroscope,
    Magnetometer,
    Microphone,
    Midi,
    NavigationOverride,
    Payment,
    PictureInPicture,
    PublickeyCredentialsGet,
    ScreenWakeLock,
    SyncXhr,
    Usb,
    WebShare,
    XrSpatialTracking,
    ClipboardRead,
    ClipboardWrite,
    Gamepad,
    SpeakerSelection,
    InterestCohort,
    ConversionMeasurement,
    FocusWithoutUserActivation,
    Hid,
    IdleDetection,
    Serial,
    SyncScript,
    TrustTokenRedemption,
    VerticalScroll,
}

impl Feature {
    /// The name in the header.
    pub fn as_str(self) -> &'static str
        ensures { result.now ≡ feature_text self }
    {
        match self {
            Feature::Accelerometer => "accelerometer",
            Feature::AmbientLightSensor => "ambient-light-sensor",
            Feature::Autoplay => "autoplay",
            Feature::Battery => "battery",
            Feature::Camera => "camera",
            Feature::CrossOriginIsolated => "cross-origin-isolated",
            Feature::Displaycapture => "display-capture",
            Feature::DocumentDomain => "document-domain",
            Feature::EncryptedMedia => "encrypted-media",
            Feature::ExecutionWhileNotRendered => "execution-while-not-rendered",
            Feature::ExecutionWhileOutOfviewport => "execution-while-out-of-viewport",
            Feature::Fullscreen => "fullscreen",
            Feature::Geolocation => "geolocation",
            Feature::Gyroscope => "gyroscope",
            Feature::Magnetometer => "magnetometer",
            Feature::Microphone => "microphone",
            Feature::Midi => "midi",
            Feature::NavigationOverride => "navigation-override",
            Feature::Payment => "payment",
            Feature::PictureInPicture => "picture-in-picture",
            Feature::PublickeyCredentialsGet => "publickey-credentials-get",
            Feature::ScreenWakeLock => "screen-wake-lock",
            Feature::SyncXhr => "sync-xhr",
            Feature::Usb => "usb",
            Feature::WebShare => "web-share",
            Feature::XrSpatialTracking => "xr-spatial-tracking",
            Feature::ClipboardRead => "clipboard-read",
            Feature::ClipboardWrite => "clipboard-write",
            Feature::Gamepad => "gamepad",
            Feature::SpeakerSelection => "speaker-selection",
            Feature::InterestCohort => "interest-cohort",
            Feature::ConversionMeasurement => "conversion-measurement",
            Feature::FocusWithoutUserActivation => "focus-without-user-activation",
            Feature::Hid => "hid",
            Feature::IdleDetection => "idle-detection",
            Feature::Serial => "serial",
            Feature::SyncScript => "sync-script",
            Feature::TrustTokenRedemption => "trust-token-redemption",
            Feature::VerticalScroll => "vertical-scroll",
        }
    }
}

impl fmt::Display for Feature {
    ghost output = { λ feature. Some (feature_text feature) };

    fn fmt<W: fmt::Write>(&self, f: &mut fmt::Formatter<W>) -> fmt::Result {
        self.as_str().fmt(f)
    }
}
