use cases::{CaseError, pair, parsed};

/// How an object behaves: how much it takes or gives in a call, which of its calls fail, and how many are Pending at
/// first.
#[derive(Clone, Copy)]
pub struct Setting<'a> {
    pub chunk: usize,
    pub fails: Option<&'a str>,
    pub pends: u64,
}

/// Changes the setting that a word `NAME=VALUE` names.
fn change<'a>(setting: &mut Setting<'a>, word: &'a str) -> Result<(), CaseError> {
    let (name, value) = pair(word, "=")?;
    match name {
        "chunk" => setting.chunk = parsed::<usize>(value)?,
        "pends" => setting.pends = parsed::<u64>(value)?,
        "fails" => setting.fails = Some(value),
        _ => return Err(CaseError::Line),
    }
    Ok(())
}

/// The setting that words say.
pub fn parse_setting(words: &str) -> Result<Setting<'_>, CaseError> {
    let mut setting = Setting {
        chunk: usize::MAX,
        fails: None,
        pends: 0,
    };
    for word in words.split_whitespace() {
        change(&mut setting, word)?;
    }
    Ok(setting)
}
