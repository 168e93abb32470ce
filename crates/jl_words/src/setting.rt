//! Commands and their options.

ghost use Rattle.std.specs.Prelude.{◌≡◌};
ghost use Rattle.jl_words.specs.Settings as settings;
ghost use Rattle.jl_words.specs.Reading as reading;

/// A command.
#[derive(Clone, Copy, Debug, PartialEq, Eq)]
pub enum Verb {
    Resolve,
    Run,
    Sample,
}

/// An option.
#[derive(Clone, Copy, Debug, PartialEq, Eq)]
pub enum Setting {
    ModulePath,
    AddModules,
    AddReads,
    AddExports,
    AddOpens,
    Steps,
    Report,
}

impl Setting {
    /// The option as it is written.
    pub fn text<'a>(self) -> &'a str
        ensures { result.now ≡ settings.setting_text self }
    {
        match self {
            Setting::ModulePath => "--module-path",
            Setting::AddModules => "--add-modules",
            Setting::AddReads => "--add-reads",
            Setting::AddExports => "--add-exports",
            Setting::AddOpens => "--add-opens",
            Setting::Steps => "--steps",
            Setting::Report => "--report",
        }
    }

    /// Whether the option takes no value.
    pub fn is_flag(self) -> bool
        ensures { result ≡ settings.is_flag self }
    {
        matches!(self, Setting::Report)
    }
}

impl Verb {
    /// Whether the command has the option.
    pub fn has(self, setting: Setting) -> bool
        ensures { result ≡ settings.has_setting self setting }
    {
        match self {
            Verb::Resolve => matches!(setting, Setting::ModulePath | Setting::AddModules),
            Verb::Run => true,
            Verb::Sample => false,
        }
    }
}

/// The command that is written so.
pub fn verb_of(word: &str) -> Option<Verb>
    ensures { result ≡ reading.verb_of word.now }
{
    match word {
        "resolve" => Some(Verb::Resolve),
        "run" => Some(Verb::Run),
        "sample" => Some(Verb::Sample),
        _ => None,
    }
}

/// The option that is written so.
pub fn setting_of(text: &str) -> Option<Setting>
    ensures { result ≡ reading.setting_of text.now }
{
    match text {
        "--module-path" => Some(Setting::ModulePath),
        "--add-modules" => Some(Setting::AddModules),
        "--add-reads" => Some(Setting::AddReads),
        "--add-exports" => Some(Setting::AddExports),
        "--add-opens" => Some(Setting::AddOpens),
        "--steps" => Some(Setting::Steps),
        "--report" => Some(Setting::Report),
        _ => None,
    }
}
