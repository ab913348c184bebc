mod histories;
mod judging;
mod limits;
mod running;
mod scripts;
