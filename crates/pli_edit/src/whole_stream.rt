// A whole input as a stream: no read fails, since none is made.

ghost use Rattle.std.specs.Prelude.{false};

use crate::fault::EditFault;
use crate::input::Input;
use crate::input_stream::InputStream;

impl InputStream for Input {
    ghost agrees = { λ _ _. Unit {0} };

    ghost input = { λ i _. i };

    ghost has_failed = { λ _. false };

    ghost follows = { λ _ _. Unit {0} };

    fn has_failed(&self) -> bool {
        false
    }

    fn has_character(&mut self) -> Result<bool, EditFault> {
        Ok(Input::has_character(self))
    }

    fn line_field(&self, width: u32) -> Option<&[u8]> {
        Input::line_field(self, width)
    }

    fn pass_line_field(&mut self, width: u32) {
        Input::pass_line_field(self, width);
    }

    fn get_a(&mut self, width: u32) -> Result<Vec<u8>, EditFault> {
        Input::get_a(self, width)
    }

    fn get_f(&mut self, width: u32) -> Result<i32, EditFault> {
        Input::get_f(self, width)
    }

    fn space(&mut self, count: u32) -> Result<(), EditFault> {
        Input::space(self, count);
        Ok(())
    }

    fn skip(&mut self, count: u32) -> Result<(), EditFault> {
        Input::skip(self, count);
        Ok(())
    }

    fn column(&mut self, column: u32) -> Result<(), EditFault> {
        Input::column(self, column);
        Ok(())
    }

    ghost stays = { λ _. tt };

    ghost goes_on = { λ _ _ _ _ _. tt };

    ghost agreed = { λ _ _ _ _ _. tt };

    ghost broken = { λ _ _ _ e. e };
}
