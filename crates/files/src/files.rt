// The environment of put and get.
use store::store::Store;

#[derive(Drop)]
pub struct Files<D> {
    pub store: Store<D>,
}
