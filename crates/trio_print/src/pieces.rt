//! Appending pieces.
ghost use Rattle.std.specs.Prelude.{[], ◌∷◌, OnOk};
ghost use Rattle.trio_print.specs.Pieces.{blank, line_end};
ghost use Rattle.trio_print.specs.Canonical.{sign, word_, name_, number_, integer, spaced, comma};
ghost use Rattle.trio_print.specs.Printing.{Prints, always, between_pieces};

use crate::printer::Printer;
use itoa::Buffer;
use std::alloc::AllocError;
use trio_text::{Reserved, Symbol};

impl Printer<'_> {
    pub fn sign(&mut self, symbol: Symbol) -> Result<(), AllocError>
        ensures { OnOk result (Prints (always (sign symbol)) self.old self.new) }
    {
        self.text.push_str(symbol.text())?;
        Ok(())
    }

    pub fn word(&mut self, reserved: Reserved) -> Result<(), AllocError>
        ensures { OnOk result (Prints (always (word_ reserved)) self.old self.new) }
    {
        self.text.push_str(reserved.text())?;
        Ok(())
    }

    pub fn name(&mut self, name: &str) -> Result<(), AllocError>
        ensures { OnOk result (Prints (always (name_ name.now)) self.old self.new) }
    {
        self.text.push_str(name)?;
        Ok(())
    }

    pub fn number(&mut self, number: u32) -> Result<(), AllocError>
        ensures { OnOk result (Prints (always (number_ number)) self.old self.new) }
    {
        let mut buffer = Buffer::new();
        self.text.push_str(buffer.format(number))?;
        Ok(())
    }

    pub fn integer(&mut self, value: i64) -> Result<(), AllocError>
        ensures { OnOk result (Prints (always (integer value)) self.old self.new) }
    {
        let mut buffer = Buffer::new();
        self.text.push_str(buffer.format(value))?;
        Ok(())
    }

    pub fn blank(&mut self) -> Result<(), AllocError>
        ensures { OnOk result (Prints (always (blank ∷ [])) self.old self.new) }
    {
        self.text.push_str(" ")?;
        Ok(())
    }

    pub fn line_end(&mut self) -> Result<(), AllocError>
        ensures { OnOk result (Prints (always (line_end ∷ [])) self.old self.new) }
    {
        self.text.push_str("\n")?;
        Ok(())
    }

    /// A symbol with a blank before it and one behind it.
    pub fn spaced(&mut self, symbol: Symbol) -> Result<(), AllocError>
        ensures { OnOk result (Prints (always (spaced symbol)) self.old self.new) }
    {
        self.blank()?;
        self.sign(symbol)?;
        self.blank()?;
        Ok(())
    }

    /// A comma and a blank.
    pub fn comma(&mut self) -> Result<(), AllocError>
        ensures { OnOk result (Prints (always comma) self.old self.new) }
    {
        self.sign(Symbol::Comma)?;
        self.blank()?;
        Ok(())
    }

    /// A comma and a blank, but before the first place.
    pub fn comma_before(&mut self, place: usize) -> Result<(), AllocError>
        ensures { OnOk result (Prints (always (between_pieces place comma)) self.old self.new) }
    {
        if place == 0 {
            return Ok(());
        }
        self.comma()?;
        Ok(())
    }

    /// A symbol between blanks, but before the first place.
    pub fn spaced_before(&mut self, place: usize, symbol: Symbol) -> Result<(), AllocError>
        ensures { OnOk result (Prints (always (between_pieces place (spaced symbol))) self.old self.new) }
    {
        if place == 0 {
            return Ok(());
        }
        self.spaced(symbol)?;
        Ok(())
    }
}
