// An input that comes from a feed as a stream.

use crate::fault::EditFault;
use crate::feed::Feed;
use crate::feed_input::FeedInput;
use crate::input_stream::InputStream;

impl<F: Feed> InputStream for FeedInput<F> {
    ghost use Rattle.pli_edit.specs.Feeding.{Agrees};
    ghost use Rattle.pli_edit.specs.Streams.{has_failed, input_of, Follows};
    ghost use Rattle.pli_edit.specs.Following.{agreed_before, broken_stays, follows_none, follows_then};

    ghost agrees = { λ h all. Agrees h.marked.fed all };

    ghost input = { λ h all. input_of h all };

    ghost has_failed = { λ h. has_failed h };

    ghost follows = { λ a b. Follows a b };

    fn has_failed(&self) -> bool {
        FeedInput::has_failed(self)
    }

    fn has_character(&mut self) -> Result<bool, EditFault> {
        FeedInput::has_character(self)
    }

    fn line_field(&self, width: u32) -> Option<&[u8]> {
        FeedInput::line_field(self, width)
    }

    fn pass_line_field(&mut self, width: u32) {
        FeedInput::pass_line_field(self, width);
    }

    fn get_a(&mut self, width: u32) -> Result<Vec<u8>, EditFault> {
        FeedInput::get_a(self, width)
    }

    fn get_f(&mut self, width: u32) -> Result<i32, EditFault> {
        FeedInput::get_f(self, width)
    }

    fn space(&mut self, count: u32) -> Result<(), EditFault> {
        FeedInput::space(self, count)
    }

    fn skip(&mut self, count: u32) -> Result<(), EditFault> {
        FeedInput::skip(self, count)
    }

    fn column(&mut self, column: u32) -> Result<(), EditFault> {
        FeedInput::column(self, column)
    }

    ghost stays = { λ s. follows_none s };

    ghost goes_on = { λ a b c h k. follows_then a b c h k };

    ghost agreed = { λ a b all h g. agreed_before a b all h g };

    ghost broken = { λ a b h e. broken_stays a b h e };
}
