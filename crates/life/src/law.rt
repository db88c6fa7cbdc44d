ghost use Rattle.life.specs.Lives.{LifeLaw, OtherRun};

use forest::grade::Grade;
use forest::yardstick::Yardstick;
use houses::house::House;

/// The law over every life of a plan, whatever the house and whatever the yardsticks: every call starts where the one before
/// stopped; each lay and lift answers as the tally does; each question is refused just as its tests say, with nothing changed;
/// and for every list answered, over the house's cables by place and then the tally's, the strength, the group and the run
/// are right.
pub fn life_law<H: House, Y: Yardstick>(_house: &H, _yardstick: &Y)
    ensures { LifeLaw H.House.cables Y.Grade.Grade.over (λ (_ : Y). Y.Yardstick.graded) }
{}

/// A run question is refused just as its tests say under every type of yardsticks. So what a life says of the questions
/// under one type holds of its questions under any other.
pub fn other_run<Y: Yardstick>(_yardstick: &Y)
    ensures { OtherRun Y.Grade.Grade.over (λ (_ : Y). Y.Yardstick.graded) }
{}
