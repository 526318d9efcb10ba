// What lowering sees beside the tree: the text, the settings, and whether `this` may be used where the root stands.
ghost use Rattle.std.specs.Prelude.{◌≡◌, ◌≤◌, length, None};
ghost use Rattle.text.specs.Utf8.{first_ill};

use definitions::options::Settings;

// Over any text.
#[derive(Clone, Copy)]
pub struct Context<'a> {
    pub text: &'a [u8],
    pub settings: &'a Settings,
    pub self_allowed: bool,
}

// Over a text that is well formed and no longer than one may be, as lowering text children asks.
#[derive(Clone, Copy)]
pub struct Sound<'a> {
    pub context: Context<'a>,
    pub ghost text_short: { length context.text.now ≤ 65535 },
    pub ghost text_formed: { first_ill context.text.now ≡ None },
}
