//! The forms of an input.
ghost use Rattle.std.specs.Prelude.{◌≡◌};
ghost use Rattle.opus_words.specs.Jobs.{form_name};

/// How an input holds its packets, as `--form` names it.
#[derive(Clone, Copy, Debug, PartialEq, Eq)]
pub enum Form {
    /// `raw`: the whole input is one undelimited packet.
    Raw,
    /// `demo`: an `opus_demo` store.
    Demo,
    /// `self`: self-delimited packets one after the other (RFC 6716, Appendix B).
    SelfDelimited,
}

impl Form {
    /// The word for this form.
    pub fn name(self) -> &'static str
        ensures { result.now ≡ form_name self }
    {
        match self {
            Form::Raw => "raw",
            Form::Demo => "demo",
            Form::SelfDelimited => "self",
        }
    }
}
