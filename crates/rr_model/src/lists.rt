// The lists that the public types hold. Contracts see each as a list.
mod dates;
mod day_items;
mod day_shapes;
mod items;
mod numbers;
mod rising;
mod rules;
mod seconds;
mod vrules;

pub use dates::Dates;
pub use day_items::DayItems;
pub use day_shapes::DayShapes;
pub use items::Items;
pub use numbers::Numbers;
pub use rules::Rules;
pub use seconds::Seconds;
pub use vrules::VRules;
