// A law about bookings, the contract of a function that does nothing.
ghost use Rattle.rr_booking.specs.Booking.{BookingAnswerIsOne};

use rr_model::first_refusal_is_one;

/// A booking over the text of its candidate has one answer.
pub fn booking_answer_is_one()
    ensures { BookingAnswerIsOne }
{
    first_refusal_is_one();
    rr_answer::answer_is_one();
}
