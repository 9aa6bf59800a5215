//! Policies whose variants have no values.
use crate::policy::AnyPolicy;
use cases::CaseError;
use rkt_shield::{Frame, NoSniff, Prefetch, Referrer, XssFilter};

fn read_strict_referrer(variant: &str) -> Result<Referrer, CaseError> {
    match variant {
        "SameOrigin" => Ok(Referrer::SameOrigin),
        "StrictOrigin" => Ok(Referrer::StrictOrigin),
        "StrictOriginWhenCrossOrigin" => Ok(Referrer::StrictOriginWhenCrossOrigin),
        "UnsafeUrl" => Ok(Referrer::UnsafeUrl),
        _ => Err(CaseError::Line),
    }
}

fn read_referrer(variant: &str) -> Result<Referrer, CaseError> {
    match variant {
        "default" => Ok(Referrer::default()),
        "NoReferrer" => Ok(Referrer::NoReferrer),
        "NoReferrerWhenDowngrade" => Ok(Referrer::NoReferrerWhenDowngrade),
        "Origin" => Ok(Referrer::Origin),
        "OriginWhenCrossOrigin" => Ok(Referrer::OriginWhenCrossOrigin),
        _ => read_strict_referrer(variant),
    }
}

fn read_no_sniff(variant: &str) -> Result<NoSniff, CaseError> {
    match variant {
        "default" => Ok(NoSniff::default()),
        "Enable" => Ok(NoSniff::Enable),
        _ => Err(CaseError::Line),
    }
}

fn read_frame(variant: &str) -> Result<Frame, CaseError> {
    match variant {
        "default" => Ok(Frame::default()),
        "SameOrigin" => Ok(Frame::SameOrigin),
        "Deny" => Ok(Frame::Deny),
        _ => Err(CaseError::Line),
    }
}

fn read_xss_filter(variant: &str) -> Result<XssFilter, CaseError> {
    match variant {
        "default" => Ok(XssFilter::default()),
        "Enable" => Ok(XssFilter::Enable),
        "Disable" => Ok(XssFilter::Disable),
        "EnableBlock" => Ok(XssFilter::EnableBlock),
        _ => Err(CaseError::Line),
    }
}

fn read_prefetch(variant: &str) -> Result<Prefetch, CaseError> {
    match variant {
        "default" => Ok(Prefetch::default()),
        "Off" => Ok(Prefetch::Off),
        "On" => Ok(Prefetch::On),
        _ => Err(CaseError::Line),
    }
}

/// The policy of this name and variant.
pub fn read_plain(name: &str, variant: &str) -> Result<AnyPolicy, CaseError> {
    match name {
        "referrer" => Ok(AnyPolicy::Referrer(read_referrer(variant)?)),
        "no_sniff" => Ok(AnyPolicy::NoSniff(read_no_sniff(variant)?)),
        "frame" => Ok(AnyPolicy::Frame(read_frame(variant)?)),
        "xss_filter" => Ok(AnyPolicy::XssFilter(read_xss_filter(variant)?)),
        "prefetch" => Ok(AnyPolicy::Prefetch(read_prefetch(variant)?)),
        _ => Err(CaseError::Line),
    }
}
