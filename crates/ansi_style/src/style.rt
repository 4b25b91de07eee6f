//! The attributes and colors of a style, for callers. No call allocates.
mod color;

ghost use Rattle.std.specs.Prelude.{◌≡◌};
ghost use Rattle.std.specs.Option.{option_map};
ghost use Rattle.ansi_style.specs.States.{rendition_of};
ghost use Rattle.ansi_style.specs.Colors.{color_of};

use crate::state::Style;
use crate::state::attributes::Attributes;
use bitflags::Flags;
pub use color::Color;

#[tactic(auto, unfolding(crate::specs::States::rendition_of))]
impl Style {
    /// Whether the text is bold (SGR 1, ECMA-48).
    ///
    /// ```
    /// let first = get_blocks(rt.alloc(), "\x1b[1mx").next();
    /// assert!(rt; matches!(&first, Some(Ok(block)) if block.style().is_bold()));
    /// ```
    pub fn is_bold(&self) -> bool
        ensures { result ≡ (rendition_of self.now).bold }
    {
        self.attributes.contains(Attributes::BOLD)
    }

    /// Whether the text is faint (SGR 2, ECMA-48).
    ///
    /// ```
    /// let first = get_blocks(rt.alloc(), "\x1b[2mx").next();
    /// assert!(rt; matches!(&first, Some(Ok(block)) if block.style().is_faint()));
    /// ```
    pub fn is_faint(&self) -> bool
        ensures { result ≡ (rendition_of self.now).faint }
    {
        self.attributes.contains(Attributes::FAINT)
    }

    /// Whether the text is italic (SGR 3, ECMA-48).
    ///
    /// ```
    /// let first = get_blocks(rt.alloc(), "\x1b[3mx").next();
    /// assert!(rt; matches!(&first, Some(Ok(block)) if block.style().is_italic()));
    /// ```
    pub fn is_italic(&self) -> bool
        ensures { result ≡ (rendition_of self.now).italic }
    {
        self.attributes.contains(Attributes::ITALIC)
    }

    /// Whether the text is singly underlined (SGR 4, ECMA-48).
    ///
    /// ```
    /// let first = get_blocks(rt.alloc(), "\x1b[4mx").next();
    /// assert!(rt; matches!(&first, Some(Ok(block)) if block.style().is_underline()));
    /// ```
    pub fn is_underline(&self) -> bool
        ensures { result ≡ (rendition_of self.now).underline }
    {
        self.attributes.contains(Attributes::UNDERLINE)
    }

    /// Whether the text blinks slowly (SGR 5, ECMA-48).
    ///
    /// ```
    /// let first = get_blocks(rt.alloc(), "\x1b[5mx").next();
    /// assert!(rt; matches!(&first, Some(Ok(block)) if block.style().is_slow_blink()));
    /// ```
    pub fn is_slow_blink(&self) -> bool
        ensures { result ≡ (rendition_of self.now).slow_blink }
    {
        self.attributes.contains(Attributes::SLOW_BLINK)
    }

    /// Whether the text blinks rapidly (SGR 6, ECMA-48).
    ///
    /// ```
    /// let first = get_blocks(rt.alloc(), "\x1b[6mx").next();
    /// assert!(rt; matches!(&first, Some(Ok(block)) if block.style().is_rapid_blink()));
    /// ```
    pub fn is_rapid_blink(&self) -> bool
        ensures { result ≡ (rendition_of self.now).rapid_blink }
    {
        self.attributes.contains(Attributes::RAPID_BLINK)
    }

    /// Whether foreground and background are swapped (SGR 7, ECMA-48).
    ///
    /// ```
    /// let first = get_blocks(rt.alloc(), "\x1b[7mx").next();
    /// assert!(rt; matches!(&first, Some(Ok(block)) if block.style().is_inverse()));
    /// ```
    pub fn is_inverse(&self) -> bool
        ensures { result ≡ (rendition_of self.now).inverse }
    {
        self.attributes.contains(Attributes::INVERSE)
    }

    /// Whether the text is concealed (SGR 8, ECMA-48).
    ///
    /// ```
    /// let first = get_blocks(rt.alloc(), "\x1b[8mx").next();
    /// assert!(rt; matches!(&first, Some(Ok(block)) if block.style().is_hide()));
    /// ```
    pub fn is_hide(&self) -> bool
        ensures { result ≡ (rendition_of self.now).hide }
    {
        self.attributes.contains(Attributes::HIDE)
    }

    /// Whether the text is crossed out (SGR 9, ECMA-48).
    ///
    /// ```
    /// let first = get_blocks(rt.alloc(), "\x1b[9mx").next();
    /// assert!(rt; matches!(&first, Some(Ok(block)) if block.style().is_crossedout()));
    /// ```
    pub fn is_crossedout(&self) -> bool
        ensures { result ≡ (rendition_of self.now).crossed_out }
    {
        self.attributes.contains(Attributes::CROSSED_OUT)
    }

    /// Whether the text is in Fraktur (SGR 20, ECMA-48).
    ///
    /// ```
    /// let first = get_blocks(rt.alloc(), "\x1b[20mx").next();
    /// assert!(rt; matches!(&first, Some(Ok(block)) if block.style().is_fraktur()));
    /// ```
    pub fn is_fraktur(&self) -> bool
        ensures { result ≡ (rendition_of self.now).fraktur }
    {
        self.attributes.contains(Attributes::FRAKTUR)
    }

    /// The foreground color by name, or `None` if none is set. (The Rust crate.)
    ///
    /// ```
    /// let first = get_blocks(rt.alloc(), "\x1b[35mx").next();
    /// assert!(rt; matches!(&first, Some(Ok(block)) if block.style().foreground() == Some(Color::Magenta)));
    /// ```
    pub fn foreground(&self) -> Option<Color>
        ensures { result ≡ option_map color_of (rendition_of self.now).foreground }
    {
        Some(Color::from(self.foreground.color()?))
    }

    /// The background color by name, or `None` if none is set. (The Rust crate.)
    ///
    /// ```
    /// let first = get_blocks(rt.alloc(), "\x1b[45mx").next();
    /// assert!(rt; matches!(&first, Some(Ok(block)) if block.style().background() == Some(Color::Magenta)));
    /// ```
    pub fn background(&self) -> Option<Color>
        ensures { result ≡ option_map color_of (rendition_of self.now).background }
    {
        Some(Color::from(self.background.color()?))
    }
}
